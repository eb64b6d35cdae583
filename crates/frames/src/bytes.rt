// How a frame's bytes are read, whatever they are written in.
ghost use Rattle.std.specs.Prelude.{◌≡◌, ℕ, List, length, slice_index};

// A stretch of bytes. Hexadecimal text is one kind of it.
pub trait Bytes {
    ghost bytes: { Self → List ℕ };

    // How many bytes there are.
    fn count(&self) -> usize
        ensures { result ≡ length (bytes self.now) };

    // The byte at a place from 0, and 0 past the end.
    fn at(&self, i: usize) -> u8
        ensures { result ≡ slice_index (bytes self.now) i };
}
