// Numbers in decimal digits, leading zeros too.
ghost use Rattle.std.specs.Prelude.{◌≡◌};
ghost use Rattle.values.specs.Writing.{digits};

// The last N digits of a number.
pub fn digits<const N: usize>(number: u32) -> [u8; N]
    ensures { result ≡ digits N number }
{
    let mut text = [b'0'; N];
    let mut rest = number;
    // A place and no iter_mut, which says nothing of the array's elements.
    for place in 0..N {
        text[N - 1 - place] = b'0' + (rest % 10) as u8;
        rest /= 10;
    }
    text
}
