//! Theorems about compressed bodies, as functions with empty bodies.
ghost use Rattle.std.specs.Prelude.{ℕ, Bool, List};
ghost use Rattle.ipc_flatbuf.specs.declared.compression.codec.CompressionCodec.{CompressionCodec};
ghost use Rattle.ipc_arrays.specs.CompressedBodies.{ReadsAsContents};

/// The body of compressed buffers is read as the body that their contents have without compression.
pub fn compressed_bodies_are_read()
    ensures { (codec : CompressionCodec) (buffers contents : List (List ℕ)) (needed : List Bool) → ReadsAsContents codec buffers contents needed }
{}
