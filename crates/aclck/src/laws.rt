//! Laws of the commands.
ghost use Rattle.aclck.specs.Headline.{Headline, HeadlineOverPaths};
ghost use Rattle.aclck.specs.Laws.{EncodeUndoesShow, NormalizeInheritGivesForms, NormalizeInheritTellsApart, NormalizeTellsApart, NormalizeTwice, ShowPosixTellsApart, ShowUndoesEncode};

/// Two texts of files get the same canonical text from `show-posix` if and only if the sets of entries of both parts
/// are equal, and both or neither has a default part.
pub fn show_posix_tells_apart()
    ensures { ShowPosixTellsApart }
{}

/// `encode` accepts what `show-nfs` writes, and writes the bytes that `show-nfs` read.
pub fn encode_undoes_show()
    ensures { EncodeUndoesShow }
{}

/// `show-nfs` accepts what `encode` writes, and writes the text of the list; this is the same text for every text of
/// the list that `encode` read.
pub fn show_undoes_encode()
    ensures { ShowUndoesEncode }
{}

/// Two lists get equal bytes from `normalize` if and only if both grant or both deny, in every situation and for every
/// mask.
pub fn normalize_tells_apart()
    ensures { NormalizeTellsApart }
{}

/// `normalize` writes its own output again, unchanged.
pub fn normalize_twice()
    ensures { NormalizeTwice }
{}

/// Two lists get equal bytes from `normalize --inherit` if and only if both grant or both deny, at every path of
/// creations below them, in every situation and for every mask.
pub fn normalize_inherit_tells_apart()
    ensures { NormalizeInheritTellsApart }
{}

/// What `normalize --inherit` writes is five lists, one after the other, each of which is its own normal form.
pub fn normalize_inherit_gives_forms()
    ensures { NormalizeInheritGivesForms }
{}

/// The headline: normal forms have equal bytes if and only if their lists grant the same, they grant what their lists
/// grant, and normalizing twice gives the same as once; canonical texts are equal if and only if the entries are equal,
/// and they read back.
pub fn headline()
    ensures { Headline }
{}

/// The headline over paths: the five normal forms have equal bytes if and only if their lists grant the same at every
/// path of creations, each grants what the list at its path grants, and normalizing each once more changes none.
pub fn headline_over_paths()
    ensures { HeadlineOverPaths }
{}
