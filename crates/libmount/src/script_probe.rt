//! A probe that goes by a script.
ghost use Rattle.std.specs.Prelude.{◌≡◌, ◌↔◌, ◌++◌, ◌∷◌, [], IsTrue, IfOk, OnOk, OnErr, None};
ghost use Rattle.std.specs.Prelude.{Err, false, map};
ghost use Rattle.std.specs.Option.{is_some};
ghost use Rattle.port_base.specs.Failing.{after_call, first_calls, is_due};
ghost use Rattle.libmount.specs.declared.probe.ProbeFault.TheVariants as probe_fault;
ghost use Rattle.libmount.specs.declared.probe.User.TheVariants as user_kind;
ghost use Rattle.libmount.specs.Mounters.{FaultedIn};
ghost use Rattle.libmount.specs.Probes.{Facts, ToldBy, ToldOrFault};
ghost use Rattle.libmount.specs.Scripts.{Place, answer_of, calls_of, device_at, facts_of};
ghost use Rattle.libmount.specs.Scripts.{place_view, told_of};

use crate::probe::{Probe, ProbeFault, User};
use port_base::failing::FailingCalls;
use port_base::paths::same_path;
use port_base::sink::NoMemory;
use std::alloc::Global;

// A path where there is something, and the device that it lies on.
#[derive(Debug, Drop)]
struct Placed {
    path: Vec<u8>,
    device: u64,
}

/// A system that a test makes up. Its answers are its facts, but in the calls that are to fault.
#[derive(Drop)]
pub struct ScriptProbe {
    alloc: Global,
    user: User,
    dir: Vec<u8>,
    places: Vec<Placed>,
    failing: FailingCalls,
}

/// Counts a call, and says whether it faults. The count of faults rises at a fault alone.
#[tactic(auto, using(crate::proofs::ScriptLemmas::due_is_loud))]
pub fn strikes(failing: &mut FailingCalls) -> bool
    ensures due { result ≡ is_due failing.old.script }
    ensures script { failing.new.script ≡ after_call failing.old.script }
    ensures fault { IsTrue result → FaultedIn (calls_of failing.old) (calls_of failing.new) }
    ensures none { result ≡ false → calls_of failing.new ≡ calls_of failing.old }
{
    failing.count()
}

// The device of the last of these places that is at the path.
fn device_at(places: &[Placed], path: &[u8]) -> Option<u64>
    ensures { result ≡ device_at path.now (map place_view places.now) }
{
    let mut found = None;
    for place in places {
        if same_path(&place.path, path) {
            found = Some(place.device);
        }
    }
    found
}

impl ScriptProbe {
    /// A system of this user and current directory, in which no path is there and no call faults.
    pub fn new(alloc: Global, user: User, dir: &[u8]) -> Result<ScriptProbe, NoMemory>
        ensures facts { IfOk result
            (λ p. facts_of p.user p.dir.items (map place_view p.places.items)
            ≡ facts_of user dir.now []) }
        ensures calls { IfOk result (λ p. p.failing ≡ first_calls []) }
    {
        Ok(ScriptProbe {
            alloc,
            user,
            dir: dir.to_vec(alloc).map_err(|_| NoMemory)?,
            places: Vec::new(alloc),
            failing: FailingCalls::none(alloc),
        })
    }

    /// There is something at the path, on this device. Of two calls for one path the last counts.
    pub fn add(&mut self, path: &[u8], device: u64) -> Result<(), NoMemory>
        ensures added { OnOk result
            (map place_view self.new.places.items ≡ map place_view self.old.places.items
            ++ record { path = path.now; device = device } ∷ []) }
        ensures kept { OnErr result
            (map place_view self.new.places.items ≡ map place_view self.old.places.items) }
        ensures user { self.new.user ≡ self.old.user }
        ensures dir { self.new.dir.items ≡ self.old.dir.items }
        ensures calls { self.new.failing ≡ self.old.failing }
    {
        let path = path.to_vec(self.alloc).map_err(|_| NoMemory)?;
        self.places
            .push(Placed { path, device })
            .map_err(|_| NoMemory)
    }

    /// The calls with these numbers, from 0 on, fault too.
    pub fn fail_at(&mut self, fails: &[u64]) -> Result<(), NoMemory>
        ensures more { OnOk result
            (self.new.failing.script.numbers ≡ self.old.failing.script.numbers ++ fails.now) }
        ensures refused { OnErr result (self.new.failing ≡ self.old.failing) }
        ensures made { self.new.failing.script.calls ≡ self.old.failing.script.calls }
        ensures faults { self.new.failing.faults ≡ self.old.failing.faults }
        ensures facts { told_of self.new ≡ told_of self.old }
    {
        self.failing.fail_at(fails)
    }
}

impl Probe for ScriptProbe {
    ghost facts = { λ p. told_of p };

    ghost calls = { λ p. calls_of p.failing };

    #[tactic(auto, using(crate::proofs::ScriptLemmas::told_fact, crate::proofs::ScriptLemmas::told_fault))]
    fn exists(&mut self, path: &[u8]) -> bool
        ensures told { ToldBy (told_of self.old) (λ (f : Facts). f.exists path.now) false result
            (calls_of self.old.failing) (calls_of self.new.failing) }
        ensures facts { told_of self.new ≡ told_of self.old }
        ensures exact { result ≡ answer_of self.old.failing.script false
            (is_some (device_at path.now (map place_view self.old.places.items))) }
        ensures script { self.new.failing.script ≡ after_call self.old.failing.script }
    {
        if strikes(&mut self.failing) {
            return false;
        }
        device_at(&self.places, path).is_some()
    }

    #[tactic(auto, using(crate::proofs::ScriptLemmas::told_fact, crate::proofs::ScriptLemmas::told_fault))]
    fn device(&mut self, path: &[u8]) -> Option<u64>
        ensures told { ToldBy (told_of self.old) (λ (f : Facts). f.device path.now) None result
            (calls_of self.old.failing) (calls_of self.new.failing) }
        ensures facts { told_of self.new ≡ told_of self.old }
        ensures exact { result ≡ answer_of self.old.failing.script None
            (device_at path.now (map place_view self.old.places.items)) }
        ensures script { self.new.failing.script ≡ after_call self.old.failing.script }
    {
        if strikes(&mut self.failing) {
            return None;
        }
        device_at(&self.places, path)
    }

    #[tactic(auto, using(crate::proofs::ScriptLemmas::told_fact, crate::proofs::ScriptLemmas::told_fault))]
    fn user(&mut self) -> User
        ensures told { ToldBy (told_of self.old) (λ (f : Facts). f.user) user_kind.RootUnreadable
            result (calls_of self.old.failing) (calls_of self.new.failing) }
        ensures facts { told_of self.new ≡ told_of self.old }
        ensures exact { result ≡ answer_of self.old.failing.script user_kind.RootUnreadable
            self.old.user }
        ensures script { self.new.failing.script ≡ after_call self.old.failing.script }
    {
        if strikes(&mut self.failing) {
            return User::RootUnreadable;
        }
        self.user
    }

    fn current_dir(&mut self, alloc: Global) -> Result<Vec<u8>, ProbeFault>
        ensures told { ToldOrFault (told_of self.old) (λ (f : Facts). f.dir) result
            (calls_of self.old.failing) (calls_of self.new.failing) }
        ensures facts { told_of self.new ≡ told_of self.old }
        ensures fails { (result ≡ Err probe_fault.Fault) ↔ IsTrue
            (is_due self.old.failing.script) }
        ensures script { self.new.failing.script ≡ after_call self.old.failing.script }
    {
        if strikes(&mut self.failing) {
            return Err(ProbeFault::Fault);
        }
        self.dir.to_vec(alloc).map_err(|_| ProbeFault::NoMemory)
    }
}
