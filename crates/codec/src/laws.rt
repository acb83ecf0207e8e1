//! What holds of the smallest formats, as facts that a caller cites by a call. That it holds of what is made of them is a
//! lemma for each way to make one.

ghost use Rattle.codec.specs.Codecs.{u8, u16, u32, u64, text};
ghost use Rattle.codec.specs.Laws.{IsCodec};

/// Numbers and texts: what was put is taken, and only what stands there is taken.
pub fn fields()
    ensures u8 { IsCodec u8 }
    ensures u16 { IsCodec u16 }
    ensures u32 { IsCodec u32 }
    ensures u64 { IsCodec u64 }
    ensures text { IsCodec text }
{}
