ghost use Rattle.std.specs.Prelude.{◌≡◌, ◌<◌, length, Ok};
ghost use Rattle.repo_model.specs.declared.call.Call.TheVariants as call;
ghost use Rattle.repo_model.specs.declared.call.RemoteSaid.TheVariants as remote;
ghost use Rattle.repo_model.specs.declared.reply.Reply.TheVariants as replies;
ghost use Rattle.repo_core.specs.Answers.{reply_of};
ghost use Rattle.repo_core.specs.Looking.{got_given, got_of, HoldsAfter};

use crate::given::{Given, Opened};
use crate::hold::Hold;
use blob_files::Download;
use nx_base::{Key, Moment};
use repo_model::{Call, Entry, GotOf, Look, Refusal, RemoteSaid, Reply};

/// What a look answers its caller, and what the journal says of it.
pub(crate) struct Told<R> {
    pub(crate) reply: Reply,
    pub(crate) answer: Result<GotOf<Download<R>>, Refusal>,
}

/// The entry of a look for which no remote was asked.
pub(crate) fn look_entry(caller: u32, key: Key, look: Look, moment: Moment, reply: Reply) -> Entry
    ensures { result ≡ record { caller = caller; call = call.Get key look moment remote.NotAsked; reply = reply } }
{
    Entry {
        caller,
        call: Call::Get {
            key,
            look,
            moment,
            remote: RemoteSaid::NotAsked,
        },
        reply,
    }
}

/// The same refusal.
fn again(why: &Refusal) -> Refusal
    ensures { result ≡ why.now }
{
    *why
}

/// Tells what is given. Whoever gets the bytes holds their blob, by the entry of that number.
fn tell_given<R>(
    holds: &mut Vec<Option<Hold>>,
    caller: u32,
    number: u64,
    given: Given<R>,
) -> Told<R>
    requires { caller < length holds.old.items }
    ensures answer { result.answer ≡ Ok (got_given given) }
    ensures reply { result.reply ≡ replies.Found given.copy }
    ensures holds { HoldsAfter number caller holds.old.items holds.new.items (Ok (got_given given)) }
{
    let Given {
        asset,
        copy,
        opened,
    } = given;
    let reply = Reply::Found { asset: copy };
    match opened {
        None => Told {
            reply,
            answer: Ok(GotOf::Seen { asset }),
        },
        Some(Opened { download, blob }) => {
            holds[caller as usize] = Some(Hold {
                blob,
                entry: number,
            });
            Told {
                reply,
                answer: Ok(GotOf::Hit { asset, download }),
            }
        }
    }
}

/// Tells what a look came to.
pub(crate) fn tell<R>(
    holds: &mut Vec<Option<Hold>>,
    caller: u32,
    number: u64,
    said: Result<Given<R>, Refusal>,
) -> Told<R>
    requires { caller < length holds.old.items }
    ensures answer { result.answer ≡ got_of said }
    ensures reply { result.reply ≡ reply_of (λ given. replies.Found given.copy) said }
    ensures holds { HoldsAfter number caller holds.old.items holds.new.items (got_of said) }
{
    match said {
        Ok(given) => tell_given(holds, caller, number, given),
        Err(why) => Told {
            reply: Reply::Refused(again(&why)),
            answer: Err(why),
        },
    }
}
