ghost use Rattle.std.specs.Prelude.{◌≡◌, map, length};
ghost use Rattle.gts_directory.specs.Rows.{rule_of_row};

use gts_directory::{Directory, RuleRow};
use std::marker::Model;

/// A directory file that was read: the directory that it says, and the rows of its rules. Contracts see the directory.
#[derive(Drop)]
pub struct DirectoryFile {
    pub(crate) directory: Directory,
    pub(crate) rules: Vec<RuleRow>,
}

impl Model for DirectoryFile {
    ghost use Rattle.gts_directory.specs.Directory as definition;

    ghost Value = { definition.Directory };

    ghost view = { λ file. file.directory };

    ghost use Rattle.gts_dirfile.specs.Rules.{AreRulesOf};

    ghost invariant = { λ file. AreRulesOf file.rules.items file.directory };
}

impl DirectoryFile {
    ghost use Rattle.gts_dirfile.specs.Rules.{AreRulesOf as are_rules_of};

    /// The directory.
    pub fn directory(&self) -> &Directory
        ensures { result.now ≡ self.now }
    {
        &self.directory
    }

    /// The rows of the rules, in their order.
    pub fn rules(&self) -> &[RuleRow]
        ensures { are_rules_of result.now self.now }
    {
        self.rules.as_slice()
    }

    /// The directory alone.
    pub fn into_directory(self) -> Directory
        ensures { result ≡ self }
    {
        self.directory
    }
}
