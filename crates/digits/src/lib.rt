// A byte in capital hex, as two bytes: io::print_hex writes small digits, and {:02X} of std writes to a writer.
#![tactic(auto)]

ghost use Rattle.std.specs.Prelude.{◌≡◌, ◌<◌};
ghost use Rattle.digits.specs.Digits.{digit_of, pair_of};

fn digit(n: u8) -> u8
    requires { n < 16 }
    ensures { result ≡ digit_of n }
{
    if n < 10 { b'0' + n } else { b'A' + (n - 10) }
}

pub fn pair(byte: u8) -> [u8; 2]
    ensures { result ≡ pair_of byte }
{
    [digit(byte / 16), digit(byte % 16)]
}
