//! What a segment is about.

ghost use Rattle.std.specs.Prelude.{◌≡◌};
ghost use Rattle.message_words.specs.Segments.{segment_meaning, unused_segment};

/// What a segment is about.
pub(crate) fn segment_words(id: &[u8]) -> &'static str
    ensures { result.now ≡ segment_meaning id.now }
{
    match id {
        b"04" => "insurance",
        b"07" => "claim",
        b"11" => "pricing",
        b"21" => "response status",
        b"22" => "response claim",
        b"23" => "response pricing",
        _ => unused_segment(id),
    }
}

/// What a segment of the standard is about that this profile does not use.
fn unused_segment(id: &[u8]) -> &'static str
    ensures { result.now ≡ unused_segment id.now }
{
    match id {
        b"01" => "patient, not used by this profile",
        b"02" => "pharmacy provider, not used by this profile",
        b"03" => "prescriber, not used by this profile",
        b"05" => "coordination of benefits, not used by this profile",
        b"06" => "workers' compensation, not used by this profile",
        b"08" => "drug use review, not used by this profile",
        b"09" => "coupon, not used by this profile",
        b"10" => "compound, not used by this profile",
        b"12" => "prior authorization, not used by this profile",
        b"13" => "clinical, not used by this profile",
        b"14" => "additional documentation, not used by this profile",
        b"15" => "facility, not used by this profile",
        b"16" => "narrative, not used by this profile",
        b"20" => "response message, not used by this profile",
        b"24" => "response drug use review, not used by this profile",
        b"25" => "response insurance, not used by this profile",
        b"26" => "response prior authorization, not used by this profile",
        b"27" => "response insurance information, not used by this profile",
        b"28" => "response other payers, not used by this profile",
        b"29" => "response patient, not used by this profile",
        _ => "unknown, carried unchanged",
    }
}
