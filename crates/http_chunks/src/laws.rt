//! Laws of chunked bodies. None of these functions does anything: the contract is the law.
ghost use Rattle.std.specs.Prelude.{◌≡◌, ℕ, List, ◌++◌};
ghost use Rattle.http_chunks.specs.declared.chunk_step.ChunkStep.{ChunkStep};
ghost use Rattle.http_chunks.specs.Body.{IsBody};
ghost use Rattle.http_chunks.specs.Reading.{Reading, Holds, IsSettled, followed_by};
ghost use Rattle.http_chunks.specs.Runs.{Finishes, IsSaidBy};

/// A stream has one reading. So a whole body has one content and one rest, a refused one has one cause and one place, and no
/// stream holds two of a whole body, a refused one, and one that is cut.
pub fn one_reading()
    ensures { (stream : List ℕ) (a b : Reading) → Holds stream a → Holds stream b → a ≡ b }
{}

/// A body and what follows it are told apart.
pub fn one_body()
    ensures { (text other content wanted rest more : List ℕ) → IsBody text content → IsBody other wanted
        → text ++ rest ≡ other ++ more → (text ≡ other) × (content ≡ wanted) × (rest ≡ more) }
{}

/// More bytes change no body that is whole or refused.
pub fn settled_stays()
    ensures { (stream more : List ℕ) (reading : Reading) → Holds stream reading → IsSettled reading → Holds (stream ++ more) (followed_by more reading) }
{}

/// A reader comes to the reading of its stream.
pub fn said_as_read()
    ensures { (stream content : List ℕ) (step : ChunkStep) → Finishes stream content step
        → (reading : Reading) × Holds stream reading × IsSaidBy reading content step }
{}

/// Two readers of one stream come to the same end with the same content, in whatever pieces each was given the bytes.
pub fn any_pieces()
    ensures { (stream content other : List ℕ) (step last : ChunkStep) → Finishes stream content step → Finishes stream other last
        → (content ≡ other) × (step ≡ last) }
{}
