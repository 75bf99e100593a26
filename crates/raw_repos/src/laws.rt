//! What the definitions promise, each as the contract of a function that does nothing.

ghost use Rattle.std.specs.Prelude.{◌≡◌, true};
ghost use Rattle.nx_base.specs.declared.key.Key.{Key};
ghost use Rattle.repo_model.specs.Config.{Repo, is_hosted};
ghost use Rattle.repo_model.specs.State.{State};
ghost use Rattle.raw_repos.specs.Policies.{AnswersAsTheModel};

/// The write policy of a hosted repository answers as the step of the one-thread repository.
pub fn policies_are_the_models()
    ensures { (repo : Repo) (state : State) (key : Key) → is_hosted repo.kind ≡ true → AnswersAsTheModel repo state key }
{}
