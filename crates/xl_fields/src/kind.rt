ghost use Rattle.std.specs.Prelude.{◌≡◌};
ghost use Rattle.spec_fields.specs.Kinds.{kind_number};

use spec_fields::Kind;

/// The number of a kind, from 1 to 24.
pub fn number_of(kind: Kind) -> u8
    ensures { result ≡ kind_number kind }
{
    match kind {
        Kind::NotXcf => 1,
        Kind::Version => 2,
        Kind::Truncated => 3,
        Kind::BadSize => 4,
        Kind::BaseType => 5,
        Kind::OldColourMap => 6,
        Kind::NoColourMap => 7,
        Kind::BadProperty => 8,
        Kind::BadString => 9,
        Kind::ModeRefused => 10,
        Kind::Compression => 11,
        Kind::FloatingSelection => 12,
        Kind::LayerType => 13,
        Kind::MaskSize => 14,
        Kind::GroupMask => 15,
        Kind::GroupInIndexed => 16,
        Kind::BadPath => 17,
        Kind::BadHierarchy => 18,
        Kind::BadRun => 19,
        Kind::TwoSelections => 20,
        Kind::ChannelSize => 21,
        Kind::TooMany => 22,
        Kind::TooLarge => 23,
        Kind::OffsetRange => 24,
    }
}
