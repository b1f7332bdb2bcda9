// Decimals: the number that a text begins with, and the numbers that a text is made of. Whatever is not
// spelled exactly as document 01 says is none: leading zeros, signs, numbers above 65535, a second space,
// a tab.
#![tactic(auto)]

ghost use Rattle.std.specs.Prelude.{◌≡◌, ◌+◌, ◌<◌, ◌∷◌, MatchOption};
ghost use Rattle.grammar.specs.Decimals.{leading};
ghost use Rattle.decimals.specs.Meaning.{Numbered, Split};

// The largest number.
const LARGEST: u32 = 65535;

// What stands before each number of many.
const SPACE: u8 = b' ';

// The digit that a text begins with, and the text behind it.
#[tactic(auto, using(crate::specs::Digits::empty_leads, crate::specs::Digits::below_leads, crate::specs::Digits::above_leads))]
fn split_digit(text: &[u8]) -> Option<(u32, &[u8])>
    ensures { MatchOption result (leading text.now ≡ 10) (λ d. (d.0 < 10) × (text.now ≡ (48 + d.0) ∷ d.1.now)) }
{
    match text {
        [b @ b'0'..=b'9', rest @ ..] => Some((u32::from(*b - b'0'), rest)),
        _ => None,
    }
}

// The number that a text begins with, and the text behind it: up to 65535, with no zero in front, and
// with all the digits that stand there.
pub fn number(text: &[u8]) -> Option<(u16, &[u8])>
    ensures { Numbered text.now result }
{
    let (mut value, mut rest) = split_digit(text)?;
    while let Some((digit, others)) = split_digit(rest) {
        let zero_first = value == 0;
        if zero_first {
            return None;
        }
        value = value * 10 + digit;
        if LARGEST < value {
            return None;
        }
        rest = others;
    }
    Some((value as u16, rest))
}

// The numbers that a text is made of, each after a space: at most 19. They stand at the start of the
// room.
pub fn fields<'a>(text: &[u8], room: &'a mut [u16; 19]) -> Option<&'a [u16]>
    ensures { Split text.now result }
{
    let mut rest = text;
    let mut count = 0;
    while let Some((first, others)) = rest.split_first() {
        if *first != SPACE {
            return None;
        }
        let full = count == room.len();
        if full {
            return None;
        }
        let (value, behind) = number(others)?;
        room[count] = value;
        count += 1;
        rest = behind;
    }
    Some(&room[..count])
}
