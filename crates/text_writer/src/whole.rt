// A whole text in a lent buffer.
ghost use Rattle.std.specs.Prelude.{◌≡◌, ◌≤◌, ℕ, List, length};
ghost use Rattle.text.specs.Put.{Put};
ghost use Rattle.text.specs.Written.{Needed, Writes};
ghost use Rattle.text_writer.specs.Writer.{extended};

use crate::TextWriter;
use text::TooShort;

// What has a text.
pub trait Text: Copy {
    ghost text: { Self → List ℕ };

    // A length that no text of its kind exceeds: a buffer of this length is never too short.
    fn longest(self) -> usize
        ensures { length (text self) ≤ result };

    // Writes the text, for whoever writes more in front of it or behind it.
    fn put(self, w: &mut TextWriter)
        ensures { w.new ≡ extended w.old (text self) };
}

// Writes the whole text of `t` at the start of `out`; a buffer that is shorter is left as it was.
pub fn write_text<T: Text>(t: T, out: &mut [u8]) -> Result<usize, TooShort>
    ensures { Writes (T.text t) out.old result out.new }
{
    let needed = needed(t, out.len());
    if out.len() < needed {
        return Err(TooShort { needed });
    }
    Ok(put_at_start(t, out))
}

// The length that the text needs, or 0 where any text of its kind fits the room: then it is not measured.
fn needed<T: Text>(t: T, room: usize) -> usize
    ensures { Needed (T.text t) room result }
{
    if t.longest() <= room {
        return 0;
    }
    put_at_start(t, &mut [0u8; 0])
}

// Puts the text at the start of `out` as far as it fits, and gives its whole length.
fn put_at_start<T: Text>(t: T, out: &mut [u8]) -> usize
    ensures { Put out.old 0 (T.text t) out.new result }
{
    let mut w = TextWriter::new(out, 0);
    t.put(&mut w);
    w.count()
}
