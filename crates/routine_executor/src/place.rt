//! Where a routine of a step stands.

ghost use Rattle.std.specs.Prelude.{◌<◌, ◌^◌, length, sum};
ghost use Rattle.routine_executor.specs.Places.{IsPlace};

/// A routine's block, from 0, that block's width, and the routine's number in it, from 0.
#[derive(Clone, Copy, PartialEq, Eq, Debug)]
pub struct Place {
    pub block: u32,
    pub width: u32,
    pub id: u32,
}

/// The place of number k in a step with these widths.
pub fn place_of(widths: &[u32], k: u32) -> Place
    requires few { length widths.now < 2 ^ 32 }
    requires there { k < sum widths.now }
    ensures { IsPlace widths.now k result }
{
    let mut id = k;
    for (block, width) in widths.iter().enumerate() {
        if id < *width {
            return Place {
                block: block as u32,
                width: *width,
                id,
            };
        }
        id -= *width;
    }
    unreachable!()
}
