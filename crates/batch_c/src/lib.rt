// The batch of `batch` for a host in C: host/devvonur.h.
#![tactic(auto)]

ghost use Rattle.batch.specs.View.{Batched};

use batch::BatchResult;

// A batch over byte areas. Refused, it writes nothing; done, it writes 20 bytes per order line and leaves the rest as it was.
#[unsafe(no_mangle)]
pub extern "C" fn devvonur_batch(table: &[u8], orders: &[u8], answers: &mut [u8]) -> BatchResult
    ensures { Batched table.now orders.now answers.old answers.new result }
{
    batch::devvonur_batch(table, orders, answers)
}
