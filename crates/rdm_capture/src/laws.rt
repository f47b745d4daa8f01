//! Laws of captures. Each is the contract of a call that does nothing.

ghost use Rattle.std.specs.Prelude.{◌≡◌, ℕ, List, Option, None, map};
ghost use Rattle.std.specs.List.{AllByRecursion};
ghost use Rattle.rdm_capture.specs.Packets.{Seen};
ghost use Rattle.rdm_capture.specs.Captures.{HasPackets};
ghost use Rattle.rdm_trace.specs.declared.line.Line.{Line as TheLine};
ghost use Rattle.rdm_trace.specs.LineText.{IsLine};
ghost use Rattle.rdm_capture.specs.Traces.{packets_of};
ghost use Rattle.rdm_capture.specs.Written.{Sent, Fits, file, seen_again};

/// A file has one list of packets, and makes no sense from one byte on, or makes sense.
pub fn capture_reads_in_one_way()
    ensures { (t : List ℕ) (packets others : List Seen) (fault another : Option ℕ) →
        HasPackets t packets fault → HasPackets t others another → (packets ≡ others) × (fault ≡ another) }
{}

/// Packets that are written, one after another, are read back, with their times and directions, and the file makes sense to its end.
pub fn written_packets_are_read_back()
    ensures { (packets : List Sent) → AllByRecursion Fits packets → HasPackets (file packets) (map seen_again packets) None }
{}

/// The capture of a trace is read back as the packets of its lines, with their times and directions, and makes sense to its end.
pub fn capture_of_a_trace_is_read_back()
    ensures { (lines : List TheLine) → AllByRecursion IsLine lines →
        HasPackets (file (packets_of lines)) (map seen_again (packets_of lines)) None }
{}
