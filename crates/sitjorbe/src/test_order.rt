ghost use Rattle.std.specs.Prelude.{◌≡◌};
ghost use Rattle.order.specs.Order.{order_answer};

use order::OrderAnswer;

// Whether the quads may be tested in this order: each of them once, and after every quad that laid a front edge which it used up. `places` and `pool`
// are scratch of any length: what they hold doesn't change the answer. A refusal may write them too: 21 `places` alone, and 22 both.
#[unsafe(no_mangle)]
pub extern "C" fn sitjorbe_order(
    quad_count: usize,
    quads: &[u32],
    order: &[u32],
    places: &mut [usize],
    pool: &mut [u32],
) -> OrderAnswer
    ensures answer { result ≡ order_answer quad_count quads.now order.now }
    ensures spared { result.refusal ≡ 21 → pool.new ≡ pool.old }
{
    order_walks::sitjorbe_order(quad_count, quads, order, places, pool)
}
