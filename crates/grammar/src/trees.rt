// What holds of all trees over a grammar: the theorems that replaying and reading rest on.
ghost use Rattle.grammar.specs.TreeLaws.{TreeLaws};

pub fn trees_stand()
    ensures { TreeLaws }
{}
