ghost use Rattle.std.specs.Prelude.{◌≡◌, ℕ, not, List, filter, length, slice_get};
ghost use Rattle.std.specs.List.{list_any};
ghost use Rattle.std.specs.Option.{option_copied, option_map};
ghost use Rattle.nx_base.specs.Order.{same_name};
ghost use Rattle.nx_base.specs.Fills.{chosen};
ghost use Rattle.repo_model.specs.Config.{group_of, takes};
ghost use Rattle.repo_model.specs.Plain.{config_of};

use crate::plain::config::{PlainConfig, PlainRepo, find_group};
use nx_base::{Fill, Member, StoreName};

fn count_writable(members: &[Member]) -> usize
    ensures { result ≡ length (filter (λ m. not m.read_only) members.now) }
{
    members.iter().filter(|m| !m.read_only).count()
}

fn nth_writable(members: &[Member], n: usize) -> Option<&StoreName>
    ensures { option_copied result ≡ option_map (λ m. m.store) (slice_get (filter (λ m. not m.read_only) members.now) n) }
{
    let mut left = n;
    for m in members {
        if !m.read_only {
            if left == 0 {
                return Some(&m.store);
            }
            left -= 1;
        }
    }
    None
}

/// The store for the next upload of the repository, after that many uploads. `None` where no
/// store is writable.
pub fn choose<'a>(config: &'a PlainConfig, repo: &PlainRepo, count: u64) -> Option<&'a StoreName>
    ensures { option_copied result ≡ chosen (group_of (config_of config.now) repo.now) count }
{
    let group = find_group(&config.groups, &repo.store)?;
    let n = count_writable(&group.members);
    if n == 0 {
        return None;
    }
    match group.fill {
        Fill::First => nth_writable(&group.members, 0),
        Fill::RoundRobin => nth_writable(&group.members, (count % n as u64) as usize),
    }
}

fn has_writable(members: &[Member], store: &StoreName) -> bool
    ensures { result ≡ list_any (λ m. same_name m.store store.now) (filter (λ m. not m.read_only) members.now) }
{
    for m in members {
        if !m.read_only && m.store == *store {
            return true;
        }
    }
    false
}

/// Whether the repository may write to that store.
pub fn may_take(config: &PlainConfig, repo: &PlainRepo, store: &StoreName) -> bool
    ensures { result ≡ takes (config_of config.now) repo.now store.now }
{
    match find_group(&config.groups, &repo.store) {
        Some(group) => has_writable(&group.members, store),
        None => false,
    }
}
