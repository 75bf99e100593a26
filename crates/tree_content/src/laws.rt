//! What the definitions promise. Each function here has an empty body: its contract is the law.
ghost use Rattle.std.specs.Prelude.{◌≡◌, ◌⊎◌, ◌↔◌, ℕ, ◌<◌, List, Option, Some, None};
ghost use Rattle.nx_base.specs.Order.{age_cmp};
ghost use Rattle.nx_base.specs.declared.key.Key.{Key};
ghost use Rattle.nx_base.specs.declared.blob_ref.BlobRef.{BlobRef};
ghost use Rattle.std.specs.declared.cmp.Ordering.TheVariants.{Less};
ghost use Rattle.disk_model.specs.Disk.{Tree, Lists, Outside, Same};
ghost use Rattle.disk_model.specs.Moments.{MayPut, Settled, IsImage, EachImage};
ghost use Rattle.blob_paths.specs.Places.{place_of, file_of};
ghost use Rattle.blob_paths.specs.declared.ending.Ending.{Ending};
ghost use Rattle.blob_properties.specs.Props.{Props};
ghost use Rattle.blob_properties.specs.Readable.{readable_of};
ghost use Rattle.blob_properties.specs.declared.found.Verdict.{Verdict};
ghost use Rattle.blob_properties.specs.declared.found.Verdict.TheVariants.{Intact};
ghost use Rattle.tree_content.specs.Blobs.{bytes_at, props_at, props_name, timestamped, SameFiles, IsRef, IsBlob, Homes, Reads, IsIntact, IsStray, Live, IsInContent};
ghost use Rattle.tree_content.specs.Contents.{Content, content_of, ContentOf, newest_of, AreLive, Contents, HasContents, with_content, SameContents, SameBeside, OldOrNew, OldOrBlob, OldOrLost, IsNoContent, OnlyLive, NoneLive, NamesEachLive};
ghost use Rattle.tree_content.specs.Verdicts.{HasVerdict};
ghost use Rattle.tree_content.specs.Files.{RestOfPlace, Creates, Erases, SaysMarked, IsMarkedAt, MarkedOrGone};

/// A key has at most one content. Where its live blobs are a list, it has one: that of the newest in the list.
pub fn a_key_has_one_content()
    ensures newest { (homes : Homes) (tree : Tree) (key : Key) (lives : List (BlobRef × Props)) → AreLive homes tree key lives → ContentOf homes tree key (newest_of lives) }
    ensures one { (homes : Homes) (tree : Tree) (key : Key) (a b : Option Content) → ContentOf homes tree key a → ContentOf homes tree key b → a ≡ b }
{}

/// A blob has just one verdict, and it is `Intact` where the blob is intact.
pub fn a_blob_has_one_verdict()
    ensures some { (tree : Tree) (blob : BlobRef) → IsBlob tree blob → (verdict : Verdict) × HasVerdict tree blob verdict }
    ensures one { (tree : Tree) (blob : BlobRef) (a b : Verdict) → HasVerdict tree blob a → HasVerdict tree blob b → a ≡ b }
    ensures intact { (tree : Tree) (blob : BlobRef) → IsRef blob → HasVerdict tree blob Intact ↔ ((props : Props) × IsIntact tree (timestamped blob props.timestamp) props) }
{}

/// Only the files of blobs play a part in the contents. These stand in the folders `content` of the stores, and none of
/// them stands in `tmp`.
pub fn other_files_play_no_part()
    ensures blobs { (homes : Homes) (old new : Tree) → ((blob : BlobRef) (ending : Ending) → IsRef blob → new (file_of blob ending) ≡ old (file_of blob ending)) → SameContents homes old new }
    ensures content { (homes : Homes) (old new : Tree) → ((name : List ℕ) → IsInContent name → new name ≡ old name) → SameContents homes old new }
    ensures tmp { (homes : Homes) (old new : Tree) → Same old new → SameContents homes old new }
{}

/// A blob is not live where its properties file is absent, can't be read, or says that it is marked, nor where it isn't
/// intact or is a stray.
pub fn these_are_not_live()
    ensures absent { (homes : Homes) (tree : Tree) (blob : BlobRef) → tree (props_name blob) ≡ None → NoneLive homes tree blob }
    ensures unreadable { (homes : Homes) (tree : Tree) (blob : BlobRef) (text : List ℕ) → tree (props_name blob) ≡ Some text → readable_of text ≡ None → NoneLive homes tree blob }
    ensures marked { (homes : Homes) (tree : Tree) (blob : BlobRef) (text : List ℕ) → tree (props_name blob) ≡ Some text → SaysMarked text → NoneLive homes tree blob }
    ensures broken { (homes : Homes) (tree : Tree) (blob : BlobRef) (props : Props) → Reads tree blob props → (IsIntact tree blob props → ⊥) → NoneLive homes tree blob }
    ensures stray { (homes : Homes) (tree : Tree) (blob : BlobRef) (props : Props) → Reads tree blob props → IsStray homes blob props → NoneLive homes tree blob }
{}

/// Where the files of one blob change, and it is live neither before nor after, no content changes.
pub fn a_blob_that_is_not_live_plays_no_part()
    ensures { (homes : Homes) (blob : BlobRef) (old new : Tree) → IsRef blob → RestOfPlace (place_of blob) old new → NoneLive homes old blob → NoneLive homes new blob → SameContents homes old new }
{}

/// Where the files of one blob change that was not live, each key has the content that it had, or it is the blob's key and
/// has the blob. Where the blob is live and newer than all that were live of its key, that key has it. All other keys have
/// just what they had.
pub fn a_new_blob_is_one_keys_content()
    ensures either { (homes : Homes) (blob : BlobRef) (old new : Tree) (text : List ℕ) → IsRef blob → RestOfPlace (place_of blob) old new → NoneLive homes old blob → new (props_name blob) ≡ Some text
        → OldOrBlob homes old blob (readable_of text) new }
    ensures newest { (homes : Homes) (blob : BlobRef) (old new : Tree) (key : Key) (props : Props) → IsRef blob → RestOfPlace (place_of blob) old new → NoneLive homes old blob → Live homes new key blob props
        → ((other : BlobRef) (d : Props) → Live homes old key other d → other.timestamp < blob.timestamp)
        → ContentOf homes new key (Some (content_of blob props)) }
    ensures beside { (homes : Homes) (blob : BlobRef) (old new : Tree) (props : Props) → IsRef blob → RestOfPlace (place_of blob) old new → NoneLive homes old blob → Reads new blob props
        → SameBeside homes props.key old new }
{}

/// Where the files of one blob change and it is not live any more, each key has the content that it had, or that was the
/// blob. Its key then has the newest of those that are left, or nothing where none is left. Where the blob was no key's
/// content, no content changes.
pub fn a_lost_blob_changes_its_own_content_alone()
    ensures either { (homes : Homes) (blob : BlobRef) (old new : Tree) → IsRef blob → RestOfPlace (place_of blob) old new → NoneLive homes new blob → OldOrLost homes old blob new }
    ensures next { (homes : Homes) (blob : BlobRef) (old new : Tree) (key : Key) (content : Content) (props : Props) → IsRef blob → RestOfPlace (place_of blob) old new → NoneLive homes new blob
        → Live homes old key content.blob props → content ≡ content_of content.blob props → (SameFiles content.blob blob → ⊥)
        → ((other : BlobRef) (d : Props) → Live homes old key other d → SameFiles other blob ⊎ ((other ≡ content.blob) ⊎ (age_cmp other content.blob ≡ Less)))
        → ContentOf homes new key (Some content) }
    ensures none { (homes : Homes) (blob : BlobRef) (old new : Tree) (key : Key) → IsRef blob → RestOfPlace (place_of blob) old new → NoneLive homes new blob → OnlyLive homes old key blob → ContentOf homes new key None }
    ensures only { (homes : Homes) (blob : BlobRef) (old new : Tree) (props : Props) → IsRef blob → RestOfPlace (place_of blob) old new → Reads old blob props → NoneLive homes new blob
        → OnlyLive homes old props.key blob → OldOrNew homes old props.key None new }
    ensures unnamed { (homes : Homes) (blob : BlobRef) (old new : Tree) → IsRef blob → RestOfPlace (place_of blob) old new → NoneLive homes new blob → IsNoContent homes old blob → SameContents homes old new }
{}

/// Where each key has the content that it had but one may have a new one, the contents as a whole are the old ones or the
/// old ones with that change.
pub fn contents_are_those_before_or_after()
    ensures either { (homes : Homes) (old new : Tree) (key : Key) (changed : Option Content) (contents : Contents) → OldOrNew homes old key changed new → HasContents homes contents old
        → HasContents homes contents new ⊎ HasContents homes (with_content key changed contents) new }
    ensures same { (homes : Homes) (old new : Tree) (contents : Contents) → SameContents homes old new → HasContents homes contents old → HasContents homes contents new }
{}

/// Where contents and live blobs name each other, the tree has these contents, and the blob of a content is the only live
/// one of its key. They go on to do so where a blob is lost and its key has nothing any more; where a new blob is live of
/// a key that had nothing; and where a new blob is live and then the one that its key had is lost.
pub fn contents_and_live_blobs_name_each_other()
    ensures contents { (homes : Homes) (contents : Contents) (tree : Tree) → NamesEachLive homes contents tree → HasContents homes contents tree }
    ensures only { (homes : Homes) (contents : Contents) (tree : Tree) (key : Key) (content : Content) → NamesEachLive homes contents tree → contents key ≡ Some content → OnlyLive homes tree key content.blob }
    ensures lost { (homes : Homes) (contents : Contents) (old new : Tree) (key : Key) (content : Content) → NamesEachLive homes contents old → contents key ≡ Some content
        → RestOfPlace (place_of content.blob) old new → NoneLive homes new content.blob → NamesEachLive homes (with_content key None contents) new }
    ensures first { (homes : Homes) (contents : Contents) (blob : BlobRef) (old new : Tree) (key : Key) (props : Props) → NamesEachLive homes contents old → contents key ≡ None
        → RestOfPlace (place_of blob) old new → NoneLive homes old blob → Live homes new key blob props
        → NamesEachLive homes (with_content key (Some (content_of blob props)) contents) new }
    ensures replaced { (homes : Homes) (contents : Contents) (blob : BlobRef) (old mid new : Tree) (key : Key) (content : Content) (props : Props) → NamesEachLive homes contents old → contents key ≡ Some content
        → RestOfPlace (place_of blob) old mid → NoneLive homes old blob → Live homes mid key blob props
        → RestOfPlace (place_of content.blob) mid new → NoneLive homes new content.blob
        → NamesEachLive homes (with_content key (Some (content_of blob props)) contents) new }
{}

/// Begun on a settled disk without the blob's properties file: while the two files of a blob are made, each image has the
/// contents before, or the blob for its key alone.
pub fn images_while_a_blob_is_created()
    ensures { (homes : Homes) (blob : BlobRef) (tree : Tree) (first now : Lists) (bytes text : List ℕ) → IsRef blob → Settled tree first → tree (props_name blob) ≡ None
        → Creates (place_of blob) bytes text first now → EachImage (OldOrBlob homes tree blob (readable_of text)) now }
{}

/// Begun on a settled disk: while a text with the mark replaces a blob's properties, each image has the contents before,
/// but for those keys whose content was the blob. Where it was the only live blob of its key, that key has it or nothing.
/// Where it was no key's content, each image has the contents before.
pub fn images_while_a_blob_is_marked()
    ensures either { (homes : Homes) (blob : BlobRef) (tree : Tree) (first now : Lists) (text : List ℕ) → IsRef blob → Settled tree first → SaysMarked text
        → MayPut (props_name blob) (Some text) first now → EachImage (OldOrLost homes tree blob) now }
    ensures only { (homes : Homes) (blob : BlobRef) (tree : Tree) (first now : Lists) (text : List ℕ) (props : Props) → IsRef blob → Settled tree first → SaysMarked text
        → Reads tree blob props → OnlyLive homes tree props.key blob
        → MayPut (props_name blob) (Some text) first now → EachImage (OldOrNew homes tree props.key None) now }
    ensures unnamed { (homes : Homes) (blob : BlobRef) (tree : Tree) (first now : Lists) (text : List ℕ) → IsRef blob → Settled tree first → SaysMarked text → IsNoContent homes tree blob
        → MayPut (props_name blob) (Some text) first now → EachImage (SameContents homes tree) now }
{}

/// Begun on a settled disk, with a blob that is not live: while a text replaces its properties, each image has the contents
/// before, or the blob for its key alone.
pub fn images_while_a_mark_is_taken_away()
    ensures { (homes : Homes) (blob : BlobRef) (tree : Tree) (first now : Lists) (text : List ℕ) → IsRef blob → Settled tree first → NoneLive homes tree blob
        → MayPut (props_name blob) (Some text) first now → EachImage (OldOrBlob homes tree blob (readable_of text)) now }
{}

/// While the two files at a place are erased whose blob is marked in each image, it is marked or gone, with both files, in
/// each image; and begun on a settled disk, each image has the contents before. The present tree is always an image.
pub fn images_while_a_blob_is_erased()
    ensures gone { (place : List ℕ) (tree : Tree) (first now : Lists) → Outside (bytes_at place) → Outside (props_at place) → IsImage first tree → EachImage (IsMarkedAt place) first
        → Erases place first now → EachImage (MarkedOrGone place) now }
    ensures contents { (homes : Homes) (blob : BlobRef) (tree : Tree) (first now : Lists) → IsRef blob → Settled tree first → IsImage first tree → EachImage (IsMarkedAt (place_of blob)) first
        → Erases (place_of blob) first now → EachImage (SameContents homes tree) now }
{}
