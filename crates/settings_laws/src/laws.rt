//! What follows of the form of settings. No function here has code: its contract is the law.
ghost use Rattle.repo_config.specs.Form.{IsSettings};
ghost use Rattle.repo_laws.specs.Sound.{AreNamedApart, AreProxiesApart};
ghost use Rattle.repo_model.specs.Settings.{Settings};

/// No two hosted repositories of settings have one id, and no two proxies.
pub fn settings_name_apart()
    ensures hosted { (settings : Settings) → IsSettings settings → AreNamedApart settings.hosted }
    ensures proxies { (settings : Settings) → IsSettings settings → AreProxiesApart settings.proxies }
{}
