//! What the words of the command line ask for.
ghost use Rattle.std.specs.Prelude.{ℕ, map, string_bytes, IfSome, IfNone};
ghost use Rattle.plain_once.specs.Words.{AsksFor, Spells};
ghost use Rattle.plain_once.specs.declared.words.Asked.{Asked as ask};

use crate::session::FakeClock;

/// The counts of the image, when its root is made, and when calls come.
#[derive(Clone, Copy, Debug, PartialEq, Eq)]
pub struct Asked {
    pub blocks: u32,
    pub inodes: u32,
    pub made: u32,
    pub fake_clock: FakeClock,
}

/// What a command line asks for, of which the first word is the program's name: four numbers or five, or nothing.
/// The fifth is by how many seconds each call is later than the one before; without it all come at one moment.
pub fn parse(line: &[String]) -> Option<Asked>
    ensures asks { IfSome result (AsksFor (map string_bytes line.now)) }
    ensures senseless { IfNone result ((asked : ask) → AsksFor (map string_bytes line.now) asked → ⊥) }
{
    match line {
        [_, blocks, inodes, made, time] => Some(Asked {
            blocks: number(blocks)?,
            inodes: number(inodes)?,
            made: number(made)?,
            fake_clock: FakeClock {
                second: number(time)?,
                rise: 0,
            },
        }),
        [_, blocks, inodes, made, time, rise] => Some(Asked {
            blocks: number(blocks)?,
            inodes: number(inodes)?,
            made: number(made)?,
            fake_clock: FakeClock {
                second: number(time)?,
                rise: number(rise)?,
            },
        }),
        _ => None,
    }
}

// The number that a word spells in decimal digits.
fn number(word: &String) -> Option<u32>
    ensures spells { IfSome result (Spells (string_bytes word.now)) }
    ensures senseless { IfNone result ((number : ℕ) → Spells (string_bytes word.now) number → ⊥) }
{
    word.as_str().parse::<u32>().ok()
}
