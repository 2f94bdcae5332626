//! Refutations: refuted configurations, with what their longest continuations show.
ghost use Rattle.std.specs.Prelude.{◌≡◌};
ghost use Rattle.lin_history.specs.Problems.Problem.{problem_of};
ghost use Rattle.lin_search.specs.Refutation.{IsRefutedWith};

use crate::config::Config;
use crate::longest::Longest;
use lin_history::Problem;
use lin_object::SeqObject;
use std::marker::Model;

/// A refuted configuration of a problem: it is reachable, and has no completion (Lowe 2017). With it goes
/// what its longest continuations show. The type keeps all three.
#[derive(Drop)]
pub struct Refutation<'p, O: SeqObject> {
    problem: &'p Problem<O>,
    config: Config<O>,
    longest: Longest,
}

impl<'p, O: SeqObject> Model for Refutation<'p, O> {
    ghost use Rattle.lin_search.specs.Refutation.{Refutation};

    ghost Value = { Refutation O O.State O.Op O.Reply };

    ghost use Rattle.lin_history.specs.Problems.Problem.{problem_of};
    ghost use Rattle.lin_search.specs.Refutation.{IsRefutedWith};

    ghost view = { λ r. record {
      problem = r.problem.now;
      config = r.config;
      longest = r.longest;
    } };

    ghost invariant = { λ r. IsRefutedWith (problem_of O.after O.State.eq O.Reply.eq r.problem.now)
        r.config.lifted r.config.state r.longest };
}

impl<'p, O: SeqObject> Refutation<'p, O> {
    /// That the configuration is refuted in the problem.
    ///
    /// Conditions: it is reachable there and has no completion, and this is what its longest continuations
    /// show.
    pub fn new(problem: &'p Problem<O>, config: Config<O>, longest: Longest) -> Self
        requires { IsRefutedWith (problem_of O.after O.State.eq O.Reply.eq problem.now)
            config.lifted config.state longest }
        ensures { result ≡ record { problem = problem.now; config = config; longest = longest } }
    {
        Refutation {
            problem,
            config,
            longest,
        }
    }

    /// The problem.
    pub fn problem(&self) -> &'p Problem<O>
        ensures { result.now ≡ self.now.problem }
    {
        self.problem
    }

    /// The configuration.
    pub fn config(&self) -> &Config<O>
        ensures { result.now ≡ self.now.config }
    {
        &self.config
    }

    /// What its longest continuations show.
    pub fn longest(&self) -> Longest
        ensures longest { result ≡ self.now.longest }
        ensures refuted { IsRefutedWith (problem_of O.after O.State.eq O.Reply.eq self.now.problem)
            self.now.config.lifted self.now.config.state result }
    {
        self.longest
    }

    /// The problem, the configuration, and what its longest continuations show.
    pub fn into_parts(self) -> (&'p Problem<O>, Config<O>, Longest)
        ensures problem { result.0.now ≡ self.entry.problem }
        ensures config { result.1 ≡ self.entry.config }
        ensures longest { result.2 ≡ self.entry.longest }
        ensures refuted { IsRefutedWith (problem_of O.after O.State.eq O.Reply.eq result.0.now)
            result.1.lifted result.1.state result.2 }
    {
        (self.problem, self.config, self.longest)
    }
}
