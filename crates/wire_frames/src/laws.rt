//! Laws of frames: each function is a theorem, and does nothing.
ghost use Rattle.wire_frames.specs.Laws.{OneFrame, OneFrameFault, NoFrameBesideFault, UnfinishedHasNoNext, NextOrUnfinished, FrameMovesOn, UnfinishedIsShort, BytesBehind, FramesAddUp, OneFrameList, WrittenIsRead};

use wire_base::laws;

/// The same bytes begin with one frame at most: the frame and what follows are determined.
pub fn one_frame()
    ensures { OneFrame }
{
    laws::one_varint();
}

/// The same bytes have one fault at most.
pub fn one_fault()
    ensures { OneFrameFault }
{
    laws::one_varint();
    laws::no_varint_beside_fault();
}

/// Where a fault stands, no frame does.
pub fn no_frame_beside_fault()
    ensures { NoFrameBesideFault }
{
    laws::one_varint();
    laws::no_varint_beside_fault();
}

/// Bytes that wait for more begin with neither a frame nor a fault.
pub fn unfinished_has_no_next()
    ensures { UnfinishedHasNoNext }
{
    laws::one_varint();
    laws::no_varint_beside_fault();
    laws::one_varint_fault();
}

/// All bytes begin with a frame or a fault, or wait for more.
pub fn next_or_unfinished()
    ensures { NextOrUnfinished }
{
    laws::varint_or_fault();
}

/// A frame takes a byte at least, so that a loop over frames ends.
pub fn frame_moves_on()
    ensures { FrameMovesOn }
{}

/// Bytes that wait for more are fewer than a prefix of ten bytes and a payload of the limit.
pub fn unfinished_is_short()
    ensures { UnfinishedIsShort }
{}

/// No bytes behind change frames, or a fault.
pub fn bytes_behind()
    ensures { BytesBehind }
{}

/// Frames go on by one more, and by more frames.
pub fn frames_add_up()
    ensures { FramesAddUp }
{}

/// Up to where no whole frame stands, the frames are one list, however they came.
pub fn one_list()
    ensures { OneFrameList }
{
    one_frame();
}

/// What is written of a frame is read as it, whatever follows.
pub fn written_is_read()
    ensures { WrittenIsRead }
{
    laws::delimited_reads_back();
}
