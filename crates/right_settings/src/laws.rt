//! What holds of settings.

ghost use Rattle.client_settings.specs.Client.{AreLimited, default_transports};
ghost use Rattle.client_settings.specs.declared.settings.Transports.{Transports};
ghost use Rattle.right_settings.specs.Given.{AreGiven, told};
ghost use Rattle.right_trace.specs.Trace.{Conf, first_transports};

/// The defaults are the settings of each configuration with the headline's first settings.
pub fn first_settings_are_given()
    ensures { (c : Conf) → AreGiven (record c { transports = first_transports }) default_transports }
{}

/// All settings that a client can be given are those of a configuration.
pub fn settings_are_told()
    ensures { (c : Conf) (t : Transports) → AreLimited t → AreGiven (record c { transports = told t }) t }
{}
