// A lent buffer that is written from its front, byte by byte.
ghost use Rattle.std.specs.Prelude.{[], ◌∷◌, length};

// The buffer, and how much of its front is written.
#[derive(Drop)]
pub struct Output<'a> {
    pub buffer: &'a mut [u8],
    pub filled: usize,
}

impl<'a> Output<'a> {
    ghost use Rattle.std.specs.Prelude.{◌≡◌};
    ghost use Rattle.basics.specs.Outputs.{Appends};

    // Nothing is written yet.
    pub fn new(buffer: &'a mut [u8]) -> Output<'a>
        ensures same_buffer { result.buffer.ghost_name ≡ buffer.entry.ghost_name }
        ensures content { (result.buffer.now ≡ buffer.old) × (result.filled ≡ 0) }
    {
        Output { buffer, filled: 0 }
    }

    // One byte. Where the buffer is full nothing is written.
    pub fn put(&mut self, b: u8)
        ensures { Appends self.old (b ∷ []) 1 self.new }
    {
        if self.filled < self.buffer.len() {
            self.buffer[self.filled] = b;
            self.filled += 1;
        }
    }

    // Bytes, one behind another.
    pub fn put_all(&mut self, bytes: &[u8])
        ensures { Appends self.old bytes.now (length bytes.now) self.new }
    {
        // By `put`, byte by byte, bundles are written a tenth slower.
        let mut filled = self.filled;
        for b in bytes {
            if filled < self.buffer.len() {
                self.buffer[filled] = *b;
                filled += 1;
            }
        }
        self.filled = filled;
    }
}
