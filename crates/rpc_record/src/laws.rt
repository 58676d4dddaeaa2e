ghost use Rattle.std.specs.Prelude.{◌≡◌, List, ℕ, ◌∷◌, [], ◌++◌};
ghost use Rattle.rpc_record.specs.Records.{Records};
ghost use Rattle.rpc_record.specs.Stream.{AreBytes, IsReading, opening, byte_read};
ghost use Rattle.rpc_record.specs.Stream.{read_stream};

/// A stream is records and a rest in one way.
pub fn stream_has_one_reading()
    ensures { (stream : List ℕ) (a b : List (List ℕ)) (x y : List ℕ)
        → Records stream a x → Records stream b y → (a ≡ b) × (x ≡ y) }
{}

/// Reading a stream by bytes finds its records, and stops just at a header at fault.
pub fn reading_is_exact()
    ensures { (stream : List ℕ) → AreBytes stream → IsReading stream (read_stream stream) }
{}

/// Reading goes from byte to byte.
pub fn reading_goes_by_bytes()
    ensures none { read_stream [] ≡ opening }
    ensures one { (stream : List ℕ) (b : ℕ) → read_stream (stream ++ b ∷ [])
        ≡ byte_read (read_stream stream).records (read_stream stream).at b }
{}
