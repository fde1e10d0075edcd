//! A law of settings in words, over the definitions alone. The function does nothing: its contract is the law.
ghost use Rattle.nvme_settings.specs.Saying.{WordsReadBack};

/// Settings that are said by their burst and their weights, as they are counted, are read back as the dword with their
/// fields.
pub fn words_read_back()
    ensures { WordsReadBack }
{}
