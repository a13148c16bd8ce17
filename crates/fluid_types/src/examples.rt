//! Worked examples of the quorum, each computed from the definitions.

ghost use Rattle.fluid_types.specs.QuorumExamples.{AfterThirteen, AfterFourteen, AcceptedByItself, TwoOfOneKey, ProposedAsText, AreNoProposals, WhoIsIn, BlobTexts, MembersText};

/// Two values are proposed at 12 and 13, and the minimum is 11: both are pending.
pub fn after_thirteen()
    ensures { AfterThirteen }
{}

/// Then the minimum becomes 12: the first is the value of its key, approved by message 14.
pub fn after_fourteen()
    ensures { AfterFourteen }
{}

/// A propose with its own number as the minimum approves itself.
pub fn accepted_by_itself()
    ensures { AcceptedByItself }
{}

/// Of two proposals of one key the later one decides.
pub fn two_of_one_key()
    ensures { TwoOfOneKey }
{}

/// Contents that are a text which spells the object.
pub fn proposed_as_text()
    ensures { ProposedAsText }
{}

/// Contents outside the form, and another kind.
pub fn are_no_proposals()
    ensures { AreNoProposals }
{}

/// Clients join, leave and join again, and one joins twice.
pub fn who_is_in()
    ensures { WhoIsIn }
{}

/// The texts of the four blobs.
pub fn blob_texts()
    ensures { BlobTexts }
{}

/// The text of two members.
pub fn members_text()
    ensures { MembersText }
{}
