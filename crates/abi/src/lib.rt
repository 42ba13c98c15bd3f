// The number of the library's shape: of what its entries take and answer. It stands in the entry's name, so that a host made for another shape doesn't
// link. `tools/bindings --raise` writes this file; shapes.txt has every number with the digest of its shape.
#![tactic(auto)]

ghost use Rattle.std.specs.Prelude.{◌≡◌};

const ABI: u32 = 5;

// The number of the library's shape, which its name has too.
#[unsafe(no_mangle)]
pub extern "C" fn sitjorbe_abi_5() -> u32
    ensures { result ≡ 5 }
{
    ABI
}
