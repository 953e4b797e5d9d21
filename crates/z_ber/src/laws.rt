//! What is true of all that is written, of frames and of trees (X.690:2021, 8.1 to 8.19). These
//! functions do nothing; what they ensure is the law.

ghost use Rattle.z_types.specs.OneValue.{HasOneValue};
ghost use Rattle.z_types.specs.ReadAs.{IsAny};
ghost use Rattle.z_ber.specs.Due.{StandsOn};
ghost use Rattle.z_ber.specs.Frames.{IsFrame, HasOneSplit};
ghost use Rattle.z_ber.specs.Laws.{ElementsHaveOneTree, ElementsHaveTheirRoot, FramesHaveOneExtent, IsReadBack, StreamsHaveOneSplit, WrittenBranchesAreElements, WrittenChildrenAreLent, WrittenElementsAreApart, WrittenElementsAreFrames, WrittenElementsAreLent, WrittenLeavesAreElements, WrittenListsAreElements};
ghost use Rattle.z_ber.specs.Place.{ElementsHaveNoPlace, ElementsHaveOnePlace, UnitHasNoPlace, UnitHasOnePlace};
ghost use Rattle.z_ber.specs.Values.{IsBits, IsInteger, IsOid};
ghost use Rattle.z_ber.specs.Written.{bool_octets, int_octets, bits_octets, oid_octets};

/// An element that is written begins no other one, and its octets have one tag and one value of
/// contents octets.
pub fn one_element()
    ensures { WrittenElementsAreApart }
{}

/// Contents octets stand for one value (X.690, 8.2, 8.3, 8.6, 8.19).
pub fn one_value()
    ensures boolean { HasOneValue IsAny bool_octets }
    ensures integer { HasOneValue IsAny int_octets }
    ensures bits { HasOneValue IsAny bits_octets }
    ensures oid { HasOneValue IsOid oid_octets }
{}

/// A stream is one list of frames of definite length, with one rest, however it is cut.
pub fn one_split()
    ensures { StreamsHaveOneSplit }
{}

/// A scan that stands in octets stands in any longer ones too.
pub fn stands_on()
    ensures { StandsOn }
{}

/// A stream is one list of frames, with one rest, however it is cut.
pub fn one_split_of_frames()
    ensures { HasOneSplit IsFrame }
{}

/// Octets have at most one tree, and no element is a proper prefix of another.
pub fn one_tree()
    ensures { ElementsHaveOneTree }
{}

/// What is lent from the front of octets is the only element there.
pub fn one_extent()
    ensures { FramesHaveOneExtent }
{}

/// An element with a tree is a frame with the tag and the contents octets of its root.
pub fn one_root()
    ensures { ElementsHaveTheirRoot }
{}

/// An element that is written is a frame with its tag and its contents octets, on any level.
pub fn written_extent()
    ensures { WrittenElementsAreFrames }
{}

/// What is written is an element: a primitive one; a constructed one round elements, with just these in
/// it; and so one round a list of elements, as `put_tree` writes it, where a level is left for it.
pub fn written_elements()
    ensures primitive { WrittenLeavesAreElements }
    ensures constructed { WrittenBranchesAreElements }
    ensures list { WrittenListsAreElements }
{}

/// What is written is lent again, as the first element and as a child, whatever follows it.
pub fn lends_written()
    ensures first { WrittenElementsAreLent }
    ensures child { WrittenChildrenAreLent }
{}

/// What is written of a value is read as the value: every answer that is right by the contract of
/// `bool_of`, `int_of`, `bits_of` or `oid_of` is the value that was written.
pub fn reads_back()
    ensures boolean { IsReadBack IsAny bool_octets }
    ensures integer { IsReadBack IsInteger int_octets }
    ensures bits { IsReadBack IsBits bits_octets }
    ensures oid { IsReadBack IsOid oid_octets }
{}

/// Octets are elements one after another, or are not in one place.
pub fn one_place()
    ensures none { ElementsHaveNoPlace }
    ensures one { ElementsHaveOnePlace }
{}

/// Octets are a unit, or are none in one place.
pub fn one_unit_place()
    ensures none { UnitHasNoPlace }
    ensures one { UnitHasOnePlace }
{}
