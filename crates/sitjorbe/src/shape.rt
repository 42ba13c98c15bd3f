ghost use Rattle.std.specs.Prelude.{◌≡◌};

// The number of the library's shape, which its name has too.
#[unsafe(no_mangle)]
pub extern "C" fn sitjorbe_abi_5() -> u32
    ensures { result ≡ 5 }
{
    abi::sitjorbe_abi_5()
}
