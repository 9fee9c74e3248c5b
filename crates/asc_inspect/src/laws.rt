//! What ties the definitions to one another. Each function stands for the law that it ensures, and does nothing.
ghost use Rattle.asc_inspect.specs.Profile.{MeetingsAreVisits};

/// The meetings of an address are its visits: there are as many, and the first and the last of them are at those counts.
pub fn meetings_are_visits()
    ensures { MeetingsAreVisits }
{}
