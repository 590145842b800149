// The call for a caller in Rattle, who lends the registers as one record and finds it changed in place. The promise is the one of `call::call`, which takes
// and returns the registers by value; here the record that was lent is what came back. There is no `requires`, and nothing is assumed.
ghost use Rattle.rules.specs.Flat.{buffers};
ghost use Rattle.rules.specs.Promises.{CallPromise};

use call::Called;
use rules::{Outcome, Registers};

pub fn call(
    memory: &mut [u8],
    table: &mut [u8],
    sheet: &mut [u8],
    registers: &mut Registers,
    caller: usize,
) -> Outcome
    ensures { CallPromise caller
        (record {
          registers = registers.old;
          machine = buffers memory.old table.old sheet.old;
        })
        (record {
          answer = result;
          after = record {
            registers = registers.new;
            machine = buffers memory.new table.new sheet.new;
          };
        }) }
{
    let Called {
        outcome,
        registers: after,
    } = call::call(memory, table, sheet, *registers, caller);
    *registers = after;
    outcome
}
