//! Where the head with which some bytes begin ends.

ghost use Rattle.std.specs.Prelude.{◌≡◌, ◌∷◌, ◌++◌, IfSome, IfNone};
ghost use Rattle.wire_frames.specs.Heads.{head_extent};
ghost use Rattle.wire_frames.specs.Lines.{IsUnbroken, is_blank_line};

use memchr::memchr;

/// How many bytes a head has, with its empty line and what stands in front, and how many of its lines aren't empty.
#[derive(Clone, Copy, Debug, PartialEq, Eq)]
pub struct Extent {
    pub length: usize,
    pub lines: usize,
}

// The front line without its LF, and what stands behind that.
fn cut_line(bytes: &[u8]) -> Option<(&[u8], &[u8])>
    ensures cut { IfSome result (λ cut. IsUnbroken cut.0.now × (bytes.now ≡ cut.0.now ++ 10 ∷ cut.1.now)) }
    ensures none { IfNone result (IsUnbroken bytes.now) }
{
    let size = memchr(b'\n', bytes)?;
    Some((&bytes[..size], &bytes[size + 1..]))
}

fn is_blank_line(line: &[u8]) -> bool
    ensures { result ≡ is_blank_line line.now }
{
    matches!(line, [] | [b'\r'])
}

/// The head at the front, up to and with its first empty line behind one that isn't empty.
/// A line ends with LF or with CR LF; a CR elsewhere is a byte of its line.
pub fn find_head(bytes: &[u8]) -> Option<Extent>
    ensures { result ≡ head_extent bytes.now }
{
    let mut rest = bytes;
    let mut lines = 0;
    while let Some((line, behind)) = cut_line(rest) {
        if !is_blank_line(line) {
            lines += 1;
        } else if lines > 0 {
            let length = bytes.len() - behind.len();
            return Some(Extent { length, lines });
        }
        rest = behind;
    }
    None
}
