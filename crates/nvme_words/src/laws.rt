//! Laws of the command line, over the definitions alone. Each function does nothing: its contract is the law.
ghost use Rattle.std.specs.Prelude.{[], None, Some, Ok, Err, codes, true, false};
ghost use Rattle.clap.specs.declared.error.kind.ErrorKind.TheVariants as kind;
ghost use Rattle.nvme_words.specs.Examples.{AsksFor, AsksForNothing, AsksForOneThing, HasFault, NamesFile, NamesOutput, RefusesBy, ShowsText, all_drawn, all_numbers, all_picks, alone, chart_behind, chart_file, chart_from_0, chart_no_admin, chart_one_pick, chart_output, chart_printed, check_all, check_all_spec, check_file, check_format, check_spec, expand_file, lint_file, lint_input, live_0, live_8, loaded_2, loaded_9, once_8, once_most, once_none, once_too_many, run_file, run_live_3, run_two_files, settings_both, settings_dword, settings_words, stats_behind, stats_json, stats_output, stats_part, stats_xml, trace_2, trace_live, trace_output};
ghost use Rattle.nvme_words.specs.declared.requests.Format.TheVariants as format;
ghost use Rattle.nvme_words.specs.declared.requests.OptionsFault.TheVariants as unfit;
ghost use Rattle.nvme_words.specs.declared.requests.Request.TheVariants as request;
ghost use Rattle.nvme_settings.specs.declared.reading.SettingsFault.TheVariants as said;
ghost use Rattle.nvme_lane.specs.declared.mode.Mode.TheVariants.{Loaded, Live};

/// Each worked line asks for what its subcommand does, with the numbers, the mode and the format that it gives, or
/// their defaults.
pub fn lines_ask_for()
    ensures once { AsksFor once_8 (request.Once 8) }
    ensures most_blocks { AsksFor once_most (request.Once 9223372036854775807) }
    ensures loaded { AsksFor loaded_2 (request.Run Loaded 2) }
    ensures live { AsksFor live_8 (request.Run Live 8) }
    ensures run { AsksFor run_file (request.RunFile Loaded 1) }
    ensures run_live { AsksFor run_live_3 (request.RunFile Live 3) }
    ensures lint { AsksFor lint_input request.Lint }
    ensures expand { AsksFor expand_file request.Expand }
    ensures check { AsksFor (alone (codes "check")) request.Check }
    ensures check_file { AsksFor check_file request.Check }
    ensures check_format { AsksFor check_format request.Check }
    ensures check_spec { AsksFor check_spec request.CheckSpec }
    ensures check_all { AsksFor check_all request.CheckAll }
    ensures check_all_spec { AsksFor check_all_spec (request.Unfit unfit.AllOfSpec) }
    ensures trace { AsksFor trace_2 (request.Trace Loaded 2) }
    ensures trace_live { AsksFor trace_live (request.Trace Live 1) }
    ensures chart { AsksFor chart_file (request.Chart (all_drawn false)) }
    ensures chart_output { AsksFor chart_output (request.Chart (all_drawn false)) }
    ensures chart_no_admin { AsksFor chart_no_admin (request.Chart (all_drawn true)) }
    ensures chart_one_pick { AsksFor chart_one_pick (request.Chart (record { range = record { first = 10; last = 10 }; no_admin = false })) }
    ensures chart_behind { AsksFor chart_behind (request.Unfit (unfit.Behind (record { first = 10; last = 9 }))) }
    ensures stats_behind { AsksFor stats_behind (request.Unfit (unfit.Behind (record { first = 10; last = 5 }))) }
    ensures stats { AsksFor (alone (codes "stats")) (request.Stats (all_numbers format.Text)) }
    ensures stats_json { AsksFor stats_json (request.Stats (all_numbers format.Json)) }
    ensures settings_dword { AsksFor settings_dword (request.Settings (Ok 0x0703_0103)) }
    ensures settings_words { AsksFor settings_words (request.Settings (Ok 0x0703_0103)) }
    ensures settings_both { AsksFor settings_both (request.Settings (Err said.Both)) }
    ensures stats_part { AsksFor stats_part (request.Stats (record { range = record { first = 2; last = 9 }; window = 3; backlogged = true; format = format.Csv })) }
{}

/// Each worked line with a fault is refused for that fault.
pub fn lines_have_faults()
    ensures no_word { HasFault [] kind.MissingSubcommand }
    ensures no_file { HasFault (alone (codes "lint")) kind.MissingRequiredArgument }
    ensures no_blocks { HasFault (alone (codes "once")) kind.MissingRequiredArgument }
    ensures no_workers { HasFault (alone (codes "live")) kind.MissingRequiredArgument }
    ensures no_block { HasFault once_none kind.ValueValidation }
    ensures no_worker { HasFault live_0 kind.ValueValidation }
    ensures blocks { HasFault once_too_many kind.ValueValidation }
    ensures workers { HasFault loaded_9 kind.ValueValidation }
    ensures two_files { HasFault run_two_files kind.UnknownArgument }
    ensures format { HasFault stats_xml kind.InvalidValue }
    ensures other_output { HasFault stats_output kind.UnknownArgument }
    ensures first_pick { HasFault chart_from_0 kind.ValueValidation }
{}

/// A line that asks for help or for the version is answered with that text. A line with a fault is refused.
pub fn lines_show_text()
    ensures help { ShowsText (alone (codes "--help")) kind.DisplayHelp }
    ensures version { ShowsText (alone (codes "--version")) kind.DisplayVersion }
    ensures no_file { RefusesBy (alone (codes "run")) kind.MissingRequiredArgument }
{}

/// Each worked line names the file that it gives. It names none with `-`, where none is given, and where it is refused.
pub fn lines_name_files()
    ensures run { NamesFile run_live_3 (Some (codes "a.toml")) }
    ensures lint { NamesFile lint_file (Some (codes "lint")) }
    ensures check { NamesFile check_file (Some (codes "a.json")) }
    ensures stats { NamesFile stats_json (Some (codes "a.json")) }
    ensures dash { NamesFile lint_input None }
    ensures none_given { NamesFile (alone (codes "chart")) None }
    ensures no_option { NamesFile loaded_2 None }
    ensures refused { NamesFile run_two_files None }
{}

/// Each worked line of a picture or of a trace names the file that it gives for the output, and none with `-` and where none is given.
pub fn lines_name_outputs()
    ensures given { NamesOutput chart_output (Some (codes "a.svg")) }
    ensures dash { NamesOutput chart_printed None }
    ensures none_given { NamesOutput chart_file None }
    ensures no_picture { NamesOutput stats_json None }
    ensures traced { NamesOutput trace_output (Some (codes "a.jsonl")) }
    ensures input { NamesFile chart_output (Some (codes "a.json")) }
{}

/// A subcommand with its values asks for one thing. It asks for nothing where the value that it needs isn't a number.
pub fn one_request()
    ensures one { AsksForOneThing }
    ensures letters { AsksForNothing (codes "once") (codes "blocks") (codes "x") }
    ensures blocks { AsksForNothing (codes "once") (codes "blocks") (codes "18446744073709551616") }
    ensures workers { AsksForNothing (codes "run") (codes "workers") (codes "256") }
    ensures traced { AsksForNothing (codes "trace") (codes "workers") (codes "-") }
{}
