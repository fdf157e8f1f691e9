//! A text put into a buffer of the caller's.

ghost use Rattle.std.specs.Prelude.{◌≡◌, length};
ghost use Rattle.witx_c.specs.Runs.{over_front};

/// Puts as much of the text as fits at the front of the buffer; answers how long the text is.
pub fn put_front(buffer: &mut [u8], text: &[u8]) -> usize
    ensures length { result ≡ length text.now }
    ensures front { buffer.new ≡ over_front text.now buffer.old }
{
    let n = text.len().min(buffer.len());
    buffer[..n].copy_from_slice(&text[..n]);
    text.len()
}
