//! Text put into a caller's slice.
ghost use Rattle.std.specs.Prelude.{◌+◌, ◌^◌, ◌<◌, ◌++◌, length};
ghost use Rattle.numbers.specs.Texts.{Written};

use numbers::kind::ShortSlice;

// It copies two texts: the digits are itoa's.
/// Puts a number's text, its whole part and what follows that, at the front of `out`.
pub fn put_text(out: &mut [u8], whole: &str, rest: &[u8]) -> Result<usize, ShortSlice>
    requires { length whole.now + length rest.now < 2 ^ 64 }
    ensures { Written (whole.now ++ rest.now) out.old out.new result }
{
    let end = whole.len();
    let needed = end + rest.len();
    if out.len() < needed {
        return Err(ShortSlice { needed });
    }
    out[..end].copy_from_slice(whole.as_bytes());
    out[end..needed].copy_from_slice(rest);
    Ok(needed)
}
