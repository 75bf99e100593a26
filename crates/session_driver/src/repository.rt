ghost use Rattle.std.specs.Prelude.{◌≡◌, ℕ, List, [], ◌++◌, Bool, true, false};
ghost use Rattle.repo_model.specs.declared.reply.Reply.{Reply};
ghost use Rattle.http_heads.specs.declared.head.Head.{Head};
ghost use Rattle.http_heads.specs.declared.head_err.HeadErr.{HeadErr};
ghost use Rattle.http_heads.specs.declared.body_err.BodyErr.{BodyErr};
ghost use Rattle.http_heads.specs.Head.{is_put};
ghost use Rattle.http_heads.specs.Response.{why_head, why_body};
ghost use Rattle.http_requests.specs.Requests as requests;
ghost use Rattle.http_requests.specs.Requests.{Item};
ghost use Rattle.http_front.specs.Answers.{Answer, last_refusal, reply_to, silence};
ghost use Rattle.http_front.specs.Replying.{IsAnswered, HasSinkCause};
ghost use Rattle.session_history.specs.declared.ask.Ask.TheVariants as asks;
ghost use Rattle.session_history.specs.Asking.{ask_of, begin_of};
ghost use Rattle.session_driver.specs.Replying.{BeginsAs, TakesAs, PutsAs, told};

use http_front::Unsaid;
use nx_base::Key;
use nx_io::Sink;
use repo_model::{Begin, Look, Reply, UploadErr};

/// A repository as the driver of a session sees it. It makes the calls that the session asks for, and writes nothing but a content
/// that is given out: what is said, the session says.
pub trait Repository {
    /// From one value to another a request was answered so.
    ghost Answers: { Self → Self → Item → Answer → Type 0 };

    /// Since the first value an upload with that head was begun, and so much of its content was taken.
    ghost Uploads: { Self → Self → Head → List ℕ → Type 0 };

    /// From one value to another the request with that head, a GET or HEAD, was looked up and replied so. A content that was found is
    /// open.
    ghost Looked: { Self → Self → Head → Reply → Type 0 };

    /// From one value to another a download failed.
    ghost Fails: { Self → Self → Type 0 };

    /// A head was refused.
    fn refused(&mut self)
        ensures { (why : HeadErr) (bare : Bool) → Answers self.old self.new (requests.refused why bare) (last_refusal bare (why_head why)) };

    /// Begins an upload.
    fn begin(&mut self, begin: Begin) -> Result<Reply, UploadErr>
        ensures { (head : Head) → begin ≡ begin_of head → is_put head.method ≡ true
            → BeginsAs (Answers self.old self.new) (Uploads self.old self.new head []) head result };

    /// Takes the next part of the upload's content.
    fn take(&mut self, part: &[u8]) -> Result<(), UploadErr>
        ensures { (start : Self) (head : Head) (content : List ℕ) → is_put head.method ≡ true → Uploads start self.old head content
            → TakesAs (Answers start self.new) (Uploads start self.new head (content ++ part.now)) head result };

    /// Puts the upload, whose content came whole.
    fn commit(&mut self) -> Result<Reply, UploadErr>
        ensures { (start : Self) (head : Head) (content : List ℕ) → is_put head.method ≡ true → Uploads start self.old head content
            → PutsAs (Answers start self.new (requests.whole head content)) head result };

    /// Ends the upload, whose content is refused.
    fn abort(&mut self)
        ensures { (start : Self) (head : Head) (content : List ℕ) (why : BodyErr) → is_put head.method ≡ true → Uploads start self.old head content
            → Answers start self.new (requests.stopped head content why) (told head (last_refusal false (why_body why))) };

    /// Ends the upload, of whose content no more comes.
    fn cut(&mut self)
        ensures { (start : Self) (head : Head) (content : List ℕ) → is_put head.method ≡ true → Uploads start self.old head content
            → Answers start self.new (requests.cut head content) (told head silence) };

    /// Looks at the content of a key, and opens it where it is to be given out.
    fn look(&mut self, key: Key, look: Look) -> Reply
        ensures { (head : Head) → ask_of head head.method ≡ asks.Look key look → Looked self.old self.new head result };

    /// Writes the head of a response and, behind it, the content that is open.
    fn send<K: Sink>(&mut self, prefix: &[u8], output: &mut K) -> Result<(), Unsaid>
        ensures said { (start : Self) (head : Head) (reply : Reply) → Looked start self.old head reply → prefix.now ≡ (reply_to [] head reply).bytes
            → IsAnswered (λ bytes. Answers start self.new (requests.whole head []) (record { bytes = bytes; ends = head.closes })) (Fails start self.new) [] (K.taken output.old) (K.taken output.new) result }
        ensures cause { HasSinkCause (K.faults output.old) (K.faults output.new) result };

    /// Deletes the content of a key.
    fn delete(&mut self, key: Key) -> Reply
        ensures { (head : Head) → ask_of head head.method ≡ asks.Delete key
            → Answers self.old self.new (requests.whole head []) (reply_to [] head result) };
}
