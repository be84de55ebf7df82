// The text of a scale's fault memory.
ghost use Rattle.std.specs.Prelude.{◌≡◌};
ghost use Rattle.fault.specs.Memory.{memory_text, Legible};

use crate::Fault;
use figures::digits;

// What a fault memory says: number, layer and place, like `013,B,001`, or `000,-,000` where no fault is remembered.
pub fn memory_text(memory: Option<Fault>) -> [u8; 9]
    ensures value { result ≡ memory_text memory }
    ensures law { Legible }
{
    match memory {
        None => *b"000,-,000",
        Some(fault) => {
            let [a, b, c] = digits::<3>(u64::from(fault.number()));
            let letter = fault.layer().letter();
            let [x, y, z] = digits::<3>(fault.place as u64);
            [a, b, c, b',', letter, b',', x, y, z]
        }
    }
}
