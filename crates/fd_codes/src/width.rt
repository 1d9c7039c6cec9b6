ghost use Rattle.std.specs.Prelude.{◌<◌, ◌≤◌, ◌^◌};
ghost use Rattle.fd_pages.specs.Dictionaries.{IsWidth};

/// How many bits an index of so many texts has: the least number of at least 1 that holds each.
pub(crate) fn width_of(count: usize) -> u8
    requires { count < 2 ^ 31 }
    ensures width { IsWidth count result }
    ensures most { result ≤ 31 }
{
    let mut width = 1u8;
    let mut room = 2usize;
    while room < count {
        room *= 2;
        width += 1;
    }
    width
}
