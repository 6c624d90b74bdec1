// The laws of walks and surveys, over the definitions alone, by whatever naming they are read.
ghost use Rattle.std.specs.Prelude.{◌<◌, ℕ, length};
ghost use Rattle.equation_law.specs.Codes.{IsNamingOf, Naming};
ghost use Rattle.equation_law.specs.Program.{Program};
ghost use Rattle.collection_attrs.specs.declared.collectors.Collector.{Collector};
ghost use Rattle.collection_attrs.specs.declared.surveys.Survey.{Survey};
ghost use Rattle.collection_attrs.specs.Evaluations.{Assignment, ComesTo, KeepsSurveys, KeepsValues, KeepsWalks, reading};
ghost use Rattle.collection_attrs.specs.Surveys.{Collections, IsNew, IsOver, IsSurveyFor};
ghost use Rattle.collection_attrs.specs.Walks.{IsWalk, new_walk};

/// Values that come besides change nothing for a walk.
pub fn walks_stay()
    ensures { (p : Program) (A B : Assignment) (n : Naming) → KeepsValues A B → KeepsWalks p n A B }
{}

/// Nor for a survey.
pub fn surveys_stay()
    ensures { (p : Program) (A B : Assignment) (n : Naming) → KeepsValues A B → KeepsSurveys p n A B }
{}

/// A walk may begin at any node, whatever values there are.
pub fn new_walks()
    ensures { (p : Program) (A : Assignment) (n : Naming) (attribute root : ℕ) → root < length p.tree → IsWalk p (reading A n) (new_walk attribute root) }
{}

/// So may the survey of any collection.
pub fn new_surveys()
    ensures { (p : Program) (A : Assignment) (n : Naming) (of : Collector) (s : Survey) → IsNamingOf p n → IsNew p of s → IsSurveyFor p (reading A n) of s }
{}

/// A survey that has gone over all that is offered has come to the value of the collection.
pub fn surveys_over()
    ensures { (p : Program) (A : Assignment) (n : Naming) (c : Collections) (s : Survey) → IsOver p (reading A n) c s → ComesTo p (reading A n) c s.so_far }
{}
