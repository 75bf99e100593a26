//! Laws of histories. None of these functions does anything: the contract is the law.
ghost use Rattle.session_history.specs.Histories.{OneHistory};
ghost use Rattle.session_history.specs.Requests.{FirstRequests, RequestsGoOn, RequestsOfHistory};

/// The same bytes and the same answers make one history, however the bytes came in pieces: the same marks, but for the choice between
/// the two causes of a head that is none, and of a content that isn't whole the same came.
pub fn one_history()
    ensures { OneHistory }
{}

/// A history in which no answer is due, and that no answer ended before its bytes do, has just the requests of its bytes.
pub fn requests_of_history()
    ensures { RequestsOfHistory }
{}

/// The requests that the bytes hold begin with those of their history, whatever was answered: also where an answer is due, where one
/// failed, and where an upload isn't begun.
pub fn first_requests()
    ensures { FirstRequests }
{}

/// Where a session stands between requests, the requests of the bytes are those of its marks, and then those of what follows.
pub fn requests_go_on()
    ensures { RequestsGoOn }
{}
