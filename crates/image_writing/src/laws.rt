// What holds of every record that can be written.
ghost use Rattle.image_writing.specs.Writing.{WritableLaw};

/// A record that is read and breaks no rule can be written so that it is read again.
pub fn writable()
    ensures writable { WritableLaw }
{}
