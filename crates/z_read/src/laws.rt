//! What is true of every reading of units. These functions do nothing; what they ensure is the law.

ghost use Rattle.z_types.specs.OneValue.{HasOneReading};
ghost use Rattle.z_read.specs.Laws.{IsAnswer, ReadRequestsHaveNumbers, SkippedChangeNothing, request_tags, reply_tags};
ghost use Rattle.z_read.specs.OneForm.{FormChangesNothing, request_kind, reply_kind};
ghost use Rattle.z_read.specs.Read.{IsRequestRead, IsReplyRead};

/// Octets are read as one request or as one reply, or are refused for one reason: all answers other
/// than want of memory are the same.
pub fn one_answer()
    ensures request { HasOneReading (IsAnswer IsRequestRead) }
    ensures reply { HasOneReading (IsAnswer IsReplyRead) }
{}

/// Elements of a unit that are none of its fields change nothing, whatever they hold.
pub fn skipped_elements()
    ensures request { SkippedChangeNothing request_tags IsRequestRead }
    ensures reply { SkippedChangeNothing reply_tags IsReplyRead }
{}

/// Units that differ in the form of their elements alone have the same answers: in definite and
/// indefinite lengths, in octets of an INTEGER that repeat its sign, and in the octet for TRUE.
pub fn one_form()
    ensures request { FormChangesNothing request_kind IsRequestRead }
    ensures reply { FormChangesNothing reply_kind IsReplyRead }
{}

/// The numbers of a request that is read are in the ranges of their fields: types and values of
/// attributes too are at most 2147483647.
pub fn numbers_in_range()
    ensures { ReadRequestsHaveNumbers }
{}
