//! The requests that are known: a list in order, and a set of their keys by which a further request
//! is
//! found among them at once.
ghost use Rattle.std.specs.Prelude.{◌≡◌, ◌∷◌, ◌++◌, [], IfOk, map, slice_get, string_bytes};
ghost use Rattle.std.specs.Option.{option_copied};
ghost use Rattle.bz_text.specs.Answers.{Gives};
ghost use Rattle.discovery.specs.Discovery.{limit_of, discovery_rules};
ghost use Rattle.discovery.specs.KeySets.{pair_of_request, pairs_of};
ghost use Rattle.bz_walks.specs.Walks.{within_limit, with_request};

use crate::requests::Request;
use bz_base::{Code, Key, May, Mem, Miss, Refusal};
use indexmap::IndexSet;
use std::alloc::Global;
use std::marker::Model;

/// The most keys of a graph, the root's among them.
const MOST_KEYS: usize = 16_384;

/// Requests for different keys. Contracts see them as their list.
#[derive(Drop)]
pub struct Worklist {
    keys: IndexSet<(String, String)>,
    requests: Vec<Request>,
}

impl Model for Worklist {
    ghost use Rattle.std.specs.Prelude.{List, ◌≡◌, map};
    ghost use Rattle.discovery.specs.declared.requests.Request.{Request};
    ghost use Rattle.discovery.specs.KeySets.{pair_of_request, pairs_of};

    ghost Value = { List Request };

    ghost view = { λ k. k.requests.items };

    ghost invariant = { λ k. pairs_of k.keys.keys ≡ map pair_of_request k.requests.items };
}

impl Worklist {
    /// One request.
    pub fn of(alloc: Global, request: Request) -> Mem<Worklist>
        ensures { IfOk result (λ known. known ≡ request ∷ []) }
    {
        let mut keys = IndexSet::new(alloc);
        keys.insert(pair(alloc, &request.key)?)?;
        let mut requests = Vec::new(alloc);
        requests.push(request)?;
        Ok(Worklist { keys, requests })
    }

    /// The request at a place.
    pub fn at(&self, place: usize) -> Option<&Request>
        ensures { option_copied result ≡ slice_get self.now place }
    {
        self.requests.get(place)
    }

    /// One more request, if its key is new. Behind the most keys none may stand.
    pub fn with(self, alloc: Global, request: Request) -> May<Worklist, Refusal>
        ensures { Gives (with_request discovery_rules self request) result }
    {
        let Worklist { keys, requests } = self;
        let mut keys = keys;
        let (_, is_new) = keys.insert_full(pair(alloc, &request.key)?)?;
        if is_new {
            behind(alloc, keys, requests, request)
        } else {
            Ok(Worklist { keys, requests })
        }
    }
}

/// One more request, whose key the set has already.
fn behind(
    alloc: Global,
    keys: IndexSet<(String, String)>,
    requests: Vec<Request>,
    request: Request,
) -> May<Worklist, Refusal>
    requires { pairs_of keys.keys ≡ map pair_of_request (requests.items ++ request ∷ []) }
    ensures { Gives (within_limit requests.items request (limit_of requests.items request)) result }
{
    if requests.len() >= MOST_KEYS {
        return Err(Miss::Because(Refusal::of(alloc, Code::TooMany)));
    }
    let mut requests = requests;
    requests.push(request)?;
    Ok(Worklist { keys, requests })
}

/// A key as a pair of texts of its own.
fn pair(alloc: Global, key: &Key) -> Mem<(String, String)>
    ensures name { IfOk result (λ pair. string_bytes pair.0 ≡ key.now.name) }
    ensures version { IfOk result (λ pair. string_bytes pair.1 ≡ key.now.version) }
{
    let name = key.name.copy(alloc)?.into_string();
    let version = key.version.copy(alloc)?.into_string();
    Ok((name, version))
}
