//! A law of world files.
ghost use Rattle.std.specs.Prelude.{◌≡◌, ℕ, List, Ok};
ghost use Rattle.sv_worldfile.specs.declared.world_file.WorldFile.{WorldFile};
ghost use Rattle.sv_worldfile.specs.Limits.{IsGoodWorldFile};
ghost use Rattle.sv_worldfile.specs.WorldFiles.{world_file_of};

/// What bytes mean as a world file keeps the limits.
pub fn world_files_keep_the_limits()
    ensures { (bytes : List ℕ) (file : WorldFile) → world_file_of bytes ≡ Ok file → IsGoodWorldFile file }
{}
