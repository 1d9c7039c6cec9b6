ghost use Rattle.std.specs.Prelude.{◌≡◌, ◌≤◌, IfSome};
ghost use Rattle.fd_words.specs.Numbers.{number};

use itoa::Buffer;

/// The number in this range that the text spells.
#[tactic(auto, using(crate::proofs::Spelled::number_steps))]
pub(crate) fn number(least: u64, most: u64, text: &str) -> Option<u64>
    ensures value { result ≡ number least most text.now }
    ensures within { IfSome result (λ n. (least ≤ n) × (n ≤ most)) }
{
    let Ok(number) = text.parse::<u64>() else {
        return None;
    };
    let mut buffer = Buffer::new();
    if buffer.format(number) != text {
        return None;
    }
    if number < least {
        return None;
    }
    if most < number {
        return None;
    }
    Some(number)
}
