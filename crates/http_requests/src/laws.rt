ghost use Rattle.std.specs.Prelude.{◌≡◌, ℕ, Bool, List, map};
ghost use Rattle.http_requests.specs.Requests.{Item, AreRequests, merged};

/// A law, with no code: a stream holds one list of requests, up to the choice between `BadHead` and `TooManyHeaders`, and
/// ends inside a request or not.
pub fn one_list()
    ensures { (bytes : List ℕ) (a b : List Item) (i j : Bool) → AreRequests bytes a i → AreRequests bytes b j
        → (map merged a ≡ map merged b) × (i ≡ j) }
{}
