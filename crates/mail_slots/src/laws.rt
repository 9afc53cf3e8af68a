//! Laws of boxes over their definitions, each the contract of a function that does
//! nothing: a caller that calls it may rely on the law.
ghost use Rattle.mail_slots.specs.Laws.{
  SendCasesLaw,
  ReceiveCasesLaw,
  UnreadLaw,
  SendLaw,
  ReceiveLaw,
  SendKeepsLaw,
  ReceiveKeepsLaw,
  EndMovesLaw,
  BeginMovesLaw,
  EndOnceLaw,
  BeginOnceLaw,
  QuietLaw,
  FollowLaw,
  EndsLaw,
  BeginsLaw,
  BringLaw,
  OthersEndLaw,
  OthersBeginLaw,
  OthersLaw,
  OpeningPairsLaw,
  PairsLaw,
  OpeningFitLaw,
  FitLaw,
};

/// A call is refused by exactly the first of its cases, and else puts its word last, or
/// takes the first one. Whether there is room goes by what was put in alone.
pub fn calls_by_cases()
    ensures send { SendCasesLaw }
    ensures receive { ReceiveCasesLaw }
    ensures unread { UnreadLaw }
{}

/// A domain's calls go by its own side of the boxes, and leave all else.
pub fn calls_by_own_side()
    ensures send { SendLaw }
    ensures receive { ReceiveLaw }
    ensures send_keeps { SendKeepsLaw }
    ensures receive_keeps { ReceiveKeepsLaw }
{}

/// A move is of all words of a list, or of none where there is none, and is made once;
/// what was put in is there for a receiver that follows its sender.
pub fn moves_are_whole()
    ensures end { EndMovesLaw }
    ensures begin { BeginMovesLaw }
    ensures end_once { EndOnceLaw }
    ensures begin_once { BeginOnceLaw }
    ensures quiet { QuietLaw }
    ensures follow { FollowLaw }
{}

/// Of what the others do a domain sees what arrives as its slots begin, and nothing else.
pub fn switches_by_arrivals()
    ensures ends { EndsLaw }
    ensures begins { BeginsLaw }
    ensures bring { BringLaw }
    ensures others_end { OthersEndLaw }
    ensures others_begin { OthersBeginLaw }
    ensures others { OthersLaw }
{}

/// The sender and the receiver of each box stay, and no list has more than 16 words.
pub fn boxes_stay()
    ensures opening_pairs { OpeningPairsLaw }
    ensures pairs { PairsLaw }
    ensures opening_fit { OpeningFitLaw }
    ensures fit { FitLaw }
{}
