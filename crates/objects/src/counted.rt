//! What the numbers of a block count to.
ghost use Rattle.std.specs.Prelude.{◌≡◌, ◌+◌, ◌<◌, ◌≤◌, ◌⊎◌, length};
ghost use Rattle.base.specs.declared.TheConstants.{BLOCK_BYTES};
ghost use Rattle.objects.specs.Counted.{IsCountedIn};
ghost use Rattle.objects.specs.Numbers.{four_at};

use base::INDIRECT_INDEXES;

/// Of a block that is read as numbers, how many of them aren't 0, and between which two of them these lie. Where all
/// are 0 the least is the largest number there is, and the greatest 0.
#[derive(Clone, Copy)]
pub struct Counted {
    pub count: u32,
    pub least: u32,
    pub greatest: u32,
}

impl Counted {
    /// Counts the numbers of a block. It looks at all of them and ends nowhere before, so that the compiler can look at
    /// several at once.
    pub fn of(bytes: &[u8]) -> Counted
        requires { length bytes.now ≡ BLOCK_BYTES }
        ensures { IsCountedIn bytes.now result }
    {
        let mut count = 0;
        let mut least = u32::MAX;
        let mut greatest = 0;
        'indexes: for index in 0..INDIRECT_INDEXES {
            let number = four_at(bytes, 4 * index);
            if number != 0 {
                count += 1;
            }
            least = lesser(least, number);
            greatest = greater(greatest, number);
        }
        Counted {
            count,
            least,
            greatest,
        }
    }
}

// The number in the 4 bytes from an offset on.
fn four_at(bytes: &[u8], offset: usize) -> u32
    requires { offset + 4 ≤ length bytes.now }
    ensures { result ≡ four_at offset bytes.now }
{
    u32::from_le_bytes([
        bytes[offset],
        bytes[offset + 1],
        bytes[offset + 2],
        bytes[offset + 3],
    ])
}

// The lesser of the two, where 0 is none.
fn lesser(least: u32, number: u32) -> u32
    ensures least { result ≤ least }
    ensures number { 0 < number → result ≤ number }
    ensures one { (result ≡ least) ⊎ ((0 < number) × (result ≡ number)) }
{
    let some = if number == 0 { u32::MAX } else { number };
    if some < least { some } else { least }
}

// The greater of the two.
fn greater(greatest: u32, number: u32) -> u32
    ensures greatest { greatest ≤ result }
    ensures number { number ≤ result }
    ensures one { (result ≡ greatest) ⊎ ((0 < number) × (result ≡ number)) }
{
    if number > greatest { number } else { greatest }
}
