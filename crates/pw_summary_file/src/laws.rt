//! The laws of summary files.

ghost use Rattle.std.specs.Prelude.{◌≡◌, ℕ, List};
ghost use Rattle.pw_files.specs.Contents.{value_of};
ghost use Rattle.pw_files.specs.Faults.{FaultsStay};
ghost use Rattle.pw_summary.specs.declared.summary.Summary.{Summary};
ghost use Rattle.pw_summary.specs.Summary.{kind, first_version, summary_version};
ghost use Rattle.pw_summary_file.specs.Spelling.{IsSummaryFile};
ghost use Rattle.pw_summary_file.specs.Reading.{fields_at, summary_file_at};

/// No bytes are the file of two summaries, and no summary has two files.
pub fn summaries_and_files_are_one_to_one()
    ensures one_summary { (bytes : List ℕ) (s t : Summary) → IsSummaryFile bytes s → IsSummaryFile bytes t → s ≡ t }
    ensures one_file { (bytes others : List ℕ) (s : Summary) → IsSummaryFile bytes s → IsSummaryFile others s → bytes ≡ others }
{}

/// A fault lies within the bytes, and one of the fields rests on the bytes up to the faulty field's end.
pub fn faults_stay()
    ensures { FaultsStay kind first_version summary_version fields_at (λ bytes. value_of (summary_file_at bytes)) }
{}
