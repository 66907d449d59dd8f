//! Laws and worked examples of compressed streams. Each function has an empty body: its contract is the law.
ghost use Rattle.ipc.specs.CompressedBodies.{CompressesBody};
ghost use Rattle.ipc.specs.CompressedExamples.{worked_body, worked_buffers, worked_contents};

/// The compressed body of an empty buffer and of one whose frame is not shorter, byte by byte.
pub fn compressed_body_is_laid_out()
    ensures { CompressesBody worked_contents worked_buffers worked_body }
{}
